// Texts: parts of the pack, compared as bytes.
ghost use Rattle.std.specs.Prelude.{◌≡◌};
ghost use Rattle.pack.specs.Notation.{◌≐◌};
ghost use Rattle.pack.specs.Items.{◌≺◌, bytes_of};

// A text, as the part of the pack that its bytes are: by numbers, so that views hold no reference and what is said of two of one pack is said
// over its bytes.
#[derive(Clone, Copy)]
pub struct Text {
    pub start: usize,
    pub len: usize,
}

// The bytes of a text, as far as the pack has them.
pub fn part(s: &[u8], t: Text) -> &[u8]
    ensures { result.now ≡ bytes_of s.now t }
{
    let a = t.start;
    let n = t.len;
    if a <= s.len() {
        if n <= s.len() - a {
            let e = a + n;
            &s[a..e]
        } else {
            &s[a..]
        }
    } else {
        &s[..0]
    }
}

// Whether two texts are the same bytes: the slices' own `==`, in the definitions' words.
pub(crate) fn same(a: &[u8], b: &[u8]) -> bool
    ensures { result ≡ a.now ≐ b.now }
{
    a == b
}

// Whether a stands before b in byte order, a shorter prefix first: the slices' own `<`.
pub(crate) fn precedes(a: &[u8], b: &[u8]) -> bool
    ensures { result ≡ a.now ≺ b.now }
{
    a < b
}

pub fn same_text(s: &[u8], t: Text, u: Text) -> bool
    ensures { result ≡ bytes_of s.now t ≐ bytes_of s.now u }
{
    same(part(s, t), part(s, u))
}

pub(crate) fn text_precedes(s: &[u8], t: Text, u: Text) -> bool
    ensures { result ≡ bytes_of s.now t ≺ bytes_of s.now u }
{
    precedes(part(s, t), part(s, u))
}

pub fn text_is(s: &[u8], t: Text, b: &[u8]) -> bool
    ensures { result ≡ bytes_of s.now t ≐ b.now }
{
    same(part(s, t), b)
}
