//! The places behind the items of a dictionary: each known, or the next new one.

ghost use Rattle.std.specs.Prelude.{◌≡◌, ◌≤◌, ◌<◌, ◌+◌, ◌⊎◌, IfSome, IfNone, OnOk, IfErr};
ghost use Rattle.dw_codec_runs.specs.DictionaryParts.{HasPlaces, MayCome, IsBroken};

// How many items are known behind a place, with `left` places behind it. `None` where it may not come.
fn known_after(number: usize, known: usize, left: usize, place: usize) -> Option<usize>
    requires { known ≤ number }
    ensures some { IfSome result (λ after. ((place < known) × (number ≤ known + left) × (after ≡ known)) ⊎ ((place ≡ known) × (known < number) × (after ≡ known + 1))) }
    ensures none { IfNone result (¬ MayCome number known left place) }
{
    if place < known && number - known <= left {
        return Some(known);
    }
    if place == known && known < number {
        return Some(known + 1);
    }
    None
}

// Whether the bytes are the places of `count` items among `number` different ones. `Err` where they are not: how many
// of them begin such places.
pub(crate) fn check_places(number: usize, count: usize, bytes: &[u8]) -> Result<(), usize>
    requires enough { number ≤ count }
    requires some { (count ≡ 0) ⊎ (0 < number) }
    ensures ok { OnOk result (HasPlaces number 0 count bytes.now) }
    ensures broken { IfErr result (λ place. IsBroken (HasPlaces number 0 count) bytes.now place) }
{
    let mut known = 0usize;
    for at in 0..count {
        if bytes.len() <= at {
            return Err(at);
        }
        match known_after(number, known, count - 1 - at, usize::from(bytes[at])) {
            Some(after) => known = after,
            None => return Err(at),
        }
    }
    if count < bytes.len() {
        return Err(count);
    }
    Ok(())
}
