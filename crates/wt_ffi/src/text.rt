// A name as C passes it.
ghost use Rattle.std.specs.Prelude.{◌≡◌};
ghost use Rattle.wt_ffi.specs.Names.{name_of, text_of};

use wt_keys::Name;

/// A key of at most 24 bytes: `rd_name` of the header.
#[repr(C)]
#[derive(Clone, Copy, PartialEq, Eq)]
pub struct Text {
    /// The bytes; those from the length on say nothing.
    pub bytes: [u8; 24],
    /// How many of them are the name's. With more than 24 it stands for no name.
    pub length: u64,
}

// The name, if the length is within its range.
pub(crate) fn name_of(text: &Text) -> Option<Name>
    ensures { result ≡ name_of text.now }
{
    if text.length > 24 {
        return None;
    }
    Name::from_bytes(&text.bytes[..text.length as usize])
}

// The name, with zeros behind it.
pub(crate) fn text_of(name: &Name) -> Text
    ensures { result ≡ text_of name.now }
{
    let name = name.as_bytes();
    let mut bytes = [0; 24];
    bytes[..name.len()].copy_from_slice(name);
    Text {
        bytes,
        length: name.len() as u64,
    }
}
