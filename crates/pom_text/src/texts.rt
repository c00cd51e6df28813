//! Texts in UTF-8, made from the bytes of a document.

ghost use Rattle.std.specs.Prelude.{◌≡◌, ◌++◌, ◌≤◌, length, drop, IfOk, OnOk, encode_utf8};
ghost use Rattle.std.specs.List.{flat_map};
ghost use Rattle.pom_grammar.specs.Characters.{local};
ghost use Rattle.pom_grammar.specs.Encodings.{IsText, utf8_of};

use pom_grammar::{Encoding, texts_are_utf8};
use res_base::{NoMemory, Text};
use std::alloc::Global;

pub(crate) fn push_char(text: &mut Text, char: char) -> Result<(), NoMemory>
    ensures { OnOk result (text.new ≡ text.old ++ encode_utf8 char) }
{
    let mut room = [0; 4];
    text.push_str(char.encode_utf8(&mut room))
}

fn push_latin1(text: &mut Text, bytes: &[u8]) -> Result<(), NoMemory>
    ensures { OnOk result (text.new ≡ text.old ++ flat_map encode_utf8 bytes.now) }
{
    for byte in bytes {
        push_char(text, *byte as char)?;
    }
    Ok(())
}

/// Puts bytes at the end, as a text in UTF-8.
pub(crate) fn push_plain(text: &mut Text, bytes: &[u8], encoding: Encoding) -> Result<(), NoMemory>
    requires { IsText encoding bytes.now }
    ensures { OnOk result (text.new ≡ text.old ++ utf8_of encoding bytes.now) }
{
    texts_are_utf8();
    match encoding {
        Encoding::Latin1 => push_latin1(text, bytes),
        Encoding::Utf8 => text.push_str(unsafe { std::str::from_utf8_unchecked(bytes) }),
        Encoding::Ascii => text.push_str(unsafe { std::str::from_utf8_unchecked(bytes) }),
    }
}

/// The place after the first colon, or the start.
fn local_start(name: &[u8]) -> usize
    ensures within { result ≤ length name.now }
    ensures value { drop result name.now ≡ local name.now }
{
    for i in 0..name.len() {
        if name[i] == b':' {
            return i + 1;
        }
    }
    0
}

/// What stands after the first colon of a name, or the whole name.
pub(crate) fn local_name(alloc: Global, name: &[u8], encoding: Encoding) -> Result<Text, NoMemory>
    requires { IsText encoding name.now }
    ensures { IfOk result (λ text. text ≡ utf8_of encoding (local name.now)) }
{
    let mut text = Text::new(alloc);
    let start = local_start(name);
    push_plain(&mut text, &name[start..], encoding)?;
    Ok(text)
}
