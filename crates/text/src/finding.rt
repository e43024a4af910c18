// Looking for a byte in a text.
ghost use Rattle.std.specs.Prelude.{◌≡◌, ◌==◌, ◌+◌, ◌≤◌, max, length, position, slice_range};
ghost use Rattle.text.specs.Finding.{index_of};

fn place_of(text: &[u8], byte: u8) -> Option<usize>
    ensures { result ≡ position (λ x. x == byte) text.now }
{
    text.iter().position(|b| *b == byte)
}

// The place of the first such byte among those from one place up to, and without, another; that other place where there is none. Nothing is looked at
// behind the text's end, and no place before the first is answered.
// A place and no Option: callers cut the text there, found or not.
pub fn find_byte(text: &[u8], from: usize, to: usize, byte: u8) -> usize
    ensures found { result ≡ from + index_of byte (slice_range text.now from to) }
    ensures behind { from ≤ result }
    ensures before_to { result ≤ max from to }
    ensures in_text { result ≤ max from (length text.now) }
{
    let end = to.min(text.len());
    if end <= from {
        return from;
    }
    match place_of(&text[from..end], byte) {
        Some(k) => from + k,
        None => end,
    }
}
