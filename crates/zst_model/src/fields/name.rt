ghost use Rattle.std.specs.Prelude.{◌≡◌, ℕ, ◌^◌, ◌<◌, ◌≤◌, List, All, length};

use arrayvec::ArrayVec;
use std::marker::Model;

/// A name as a stream states it (`drr_toname` of zfs_ioctl.h): at most 255 bytes of any value.
#[derive(Drop)]
pub struct NameText {
    bytes: ArrayVec<u8, 255>,
}

impl Model for NameText {
    ghost Value = { List ℕ };

    ghost view = { λ n. n.bytes.items };

    ghost invariant = { λ n. length n.bytes.items ≤ 255 };
}

impl NameText {
    /// The name of these bytes.
    pub fn new(bytes: &[u8]) -> NameText
        requires { length bytes.now ≤ 255 }
        ensures same { result ≡ bytes.now }
        ensures bytes { All (λ byte. byte < 2 ^ 8) result }
    {
        let mut name = ArrayVec::new();
        let _ = name.try_extend_from_slice(bytes);
        NameText { bytes: name }
    }

    /// Its bytes.
    pub fn as_bytes(&self) -> &[u8]
        ensures same { result.now ≡ self.now }
        ensures short { length self.now ≤ 255 }
    {
        self.bytes.as_slice()
    }

    /// The same name, which takes no memory.
    pub fn duplicate(&self) -> NameText
        ensures { result ≡ self.now }
    {
        NameText::new(self.as_bytes())
    }
}
