ghost use Rattle.std.specs.Prelude.{◌≡◌, ◌<◌, length};
ghost use Rattle.float_forms.specs.Words.{says, byte_at, word_at};

// The byte at a place, as a wide number.
pub fn byte_at(bytes: &[u8], place: usize) -> u64
    requires { place < length bytes.now }
    ensures { (result ≡ byte_at bytes.now place) × (result < 256) }
{
    bytes[place] as u64
}

// The word whose eight bytes begin at a place, the most significant first; none where fewer than eight bytes are left.
// In pairs: the compiler takes this form, and not every other, as one load and one byte swap.
pub fn word_at(bytes: &[u8], place: usize) -> Option<u64>
    ensures { says result ≡ word_at bytes.now place }
{
    if place > bytes.len() {
        return None;
    }
    if bytes.len() - place < 8 {
        return None;
    }
    let first = byte_at(bytes, place) * 256 + byte_at(bytes, place + 1);
    let second = byte_at(bytes, place + 2) * 256 + byte_at(bytes, place + 3);
    let third = byte_at(bytes, place + 4) * 256 + byte_at(bytes, place + 5);
    let last = byte_at(bytes, place + 6) * 256 + byte_at(bytes, place + 7);
    Some(first * 0x1_0000_0000_0000 + (second * 0x1_0000_0000 + (third * 0x1_0000 + last)))
}
