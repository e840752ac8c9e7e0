//! Where a printed report parts from the one that is due.
ghost use Rattle.std.specs.Prelude.{◌≡◌, ◌≤◌, length};
ghost use Rattle.dw_check.specs.Ends.{common_front, line_ends, wrong_line};

/// The first line, counted from 1, in which a report isn't the one that is due; none where they are equal. It takes no
/// memory.
pub(crate) fn wrong_line(bytes: &[u8], due: &[u8]) -> Option<u64>
    ensures { result ≡ wrong_line bytes.now due.now }
{
    if bytes == due {
        None
    } else {
        Some(1 + shared_lines(bytes, due))
    }
}

/// How many whole lines two texts share from the front on.
fn shared_lines(bytes: &[u8], due: &[u8]) -> u64
    ensures lines { result ≡ line_ends (common_front bytes.now due.now) }
    ensures few { result ≤ length bytes.now }
{
    let mut lines = 0;
    for place in 0..bytes.len().min(due.len()) {
        if bytes[place] != due[place] {
            return lines;
        }
        if bytes[place] == b'\n' {
            lines += 1;
        }
    }
    lines
}
