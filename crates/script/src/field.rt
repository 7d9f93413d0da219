// The fields of a line.
ghost use Rattle.std.specs.Prelude.{◌≡◌, ◌∷◌};
ghost use Rattle.script.specs.Fields.{fields, behind};

// The first field, and what stands behind its tab, if there is one.
pub(crate) fn split_once(s: &[u8]) -> (&[u8], Option<&[u8]>)
    ensures { fields s.now ≡ result.0.now ∷ behind result.1 }
{
    match s.iter().position(|&b| b == b'\t') {
        Some(at) => (&s[..at], Some(&s[at + 1..])),
        None => (s, None),
    }
}
