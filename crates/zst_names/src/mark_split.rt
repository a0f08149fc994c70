ghost use Rattle.std.specs.Prelude.{◌≡◌, ◌<◌};
ghost use Rattle.zst_names.specs.Names.{dataset_of, component_of};

/// What stands before the first mark, and what stands behind it.
pub fn split_at_mark(text: &str, mark: u8) -> (&str, &str)
    requires { mark < 128 }
    ensures dataset { result.0.now ≡ dataset_of mark text.now }
    ensures component { result.1.now ≡ component_of mark text.now }
{
    match text.split_once(char::from(mark)) {
        Some(halves) => halves,
        None => (text, ""),
    }
}
