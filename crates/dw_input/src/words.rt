//! The words of the command line.
ghost use Rattle.std.specs.Prelude.{◌≡◌, ◌≤◌, length, option_map, IfSome};
ghost use Rattle.dw_input.specs.Words.{is_option, is_generator, is_count, are_names, names_of};

use dw_script::Status;
use dw_value::Text;
use std::env;
use std::io::ErrorKind;

/// The most scripts that one run takes. The limit is this project's own.
pub const MAX_SCRIPTS: usize = 64;

/// The name that stands first, of a schedule or a journal, and those of the scripts. `None` comes exactly where the words
/// haven't the form of the command: a first name, and 1 to 64 names of scripts. A word that begins with `-` and is longer
/// than that one byte is no name, and the first name doesn't begin with `gen:`. The form is this project's own.
pub fn names(words: &[Text]) -> Option<(&Text, &[Text])>
    ensures names { option_map (λ names. (names.0.now, names.1.now)) result ≡ names_of words.now }
    ensures few { IfSome result (λ names. length names.1.now ≤ 64) }
{
    match words {
        [first, scripts @ ..]
            if are_names(words) && !is_generator(first.as_bytes()) && is_count(scripts.len()) => {
            Some((first, scripts))
        }
        _ => None,
    }
}

/// Whether none of the words is an option.
fn are_names(words: &[Text]) -> bool
    ensures { result ≡ are_names words.now }
{
    words.iter().all(|word| !is_option(word.as_bytes()))
}

/// Whether so many scripts may be named.
fn is_count(scripts: usize) -> bool
    ensures { result ≡ is_count scripts }
{
    1 <= scripts && scripts <= MAX_SCRIPTS
}

/// Whether the word begins with `-` and is longer than that one byte.
fn is_option(word: &[u8]) -> bool
    ensures { result ≡ is_option word.now }
{
    word.starts_with(b"-") && word.len() > 1
}

/// Whether the word begins with `gen:`, as names of generated scripts do.
fn is_generator(word: &[u8]) -> bool
    ensures { result ≡ is_generator word.now }
{
    word.starts_with(b"gen:")
}

/// The words of the command line after the program's name, as the machine gives them. One that isn't UTF-8 is no name, so
/// that `Usage` comes; want of memory is `Memory`.
pub fn words_given(rt: HostRuntime) -> Result<Vec<Text>, Status> {
    let args = match env::args(&rt) {
        Ok(args) => args,
        Err(error) if error.kind() == ErrorKind::OutOfMemory => return Err(Status::Memory),
        Err(_) => return Err(Status::Usage),
    };
    let mut words = Vec::new(rt.alloc());
    for word in args.skip(1) {
        if words.push(Text::from_string(word)).is_err() {
            return Err(Status::Memory);
        }
    }
    Ok(words)
}
