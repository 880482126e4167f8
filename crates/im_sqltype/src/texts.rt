ghost use Rattle.std.specs.Prelude.{◌≡◌, ◌++◌, IfOk, OnOk};
ghost use Rattle.im_sqltype.specs.Texts.{octet_text, octets_text, value_text, row_text};

use crate::numbers::raised;
use crate::values::Value;
use im_octet::octets::Octets;
use im_octet::writer::Writer;
use std::alloc::{AllocError, Global};

// Writes the text of an octet. Where memory is short, a part of it may be written.
#[tactic(auto, using(crate::proofs::OctetLemmas::octet_text_of))]
fn push_octet(out: &mut Writer, octet: u8) -> Result<(), AllocError>
    ensures { OnOk result (out.new ≡ out.old ++ octet_text octet) }
{
    if octet == 0 {
        out.octets(&[0, 255])
    } else {
        out.u8(octet)
    }
}

// Writes the text of octets. Where memory is short, a part of it may be written.
#[tactic(auto, unfolding(crate::specs::Texts::octets_text))]
fn push_octets(out: &mut Writer, octets: &[u8]) -> Result<(), AllocError>
    ensures { OnOk result (out.new ≡ out.old ++ octets_text octets.now) }
{
    for octet in octets {
        push_octet(out, *octet)?;
    }
    out.octets(&[0, 0])
}

// Writes the text of a value. Where memory is short, a part of it may be written.
fn push_value(out: &mut Writer, value: &Value) -> Result<(), AllocError>
    ensures { OnOk result (out.new ≡ out.old ++ value_text value.now) }
{
    match value {
        Value::Null => out.u8(0),
        Value::Integer(number) => {
            out.u8(1)?;
            out.u64(raised(*number))
        }
        Value::Boolean(truth) => {
            out.u8(1)?;
            out.u8(u8::from(*truth))
        }
        Value::Varchar(octets) | Value::Blob(octets) => {
            out.u8(1)?;
            push_octets(out, octets.as_slice())
        }
    }
}

/// The text of a value, as it stands in keys and rows:
///
/// ```text
/// value   = 00 | 01 content                        00 for NULL
/// content = number + 2^63, 8                       INTEGER
///         | 00 | 01                                BOOLEAN: false, true
///         | {octet, but 00 as 00 ff} 00 00         VARCHAR, BLOB
/// ```
///
/// Octet by octet the texts of one kind are in the order of its values, and none is the front part of another
/// (`laws`). `read_value`, its twin, reads it back. Its only error is want of memory.
pub fn value_text(alloc: Global, value: &Value) -> Result<Octets, AllocError>
    ensures { IfOk result (λ text. text ≡ value_text value.now) }
{
    let mut out = Writer::new(alloc);
    push_value(&mut out, value)?;
    Ok(Octets::from_vec(out.into_vec()))
}

/// The texts of values, one behind the other: the columns of a key, or a row. `read_row`, its twin, reads them
/// back. Its only error is want of memory.
pub fn row_text(alloc: Global, values: &[Value]) -> Result<Octets, AllocError>
    ensures { IfOk result (λ text. text ≡ row_text values.now) }
{
    let mut out = Writer::new(alloc);
    for value in values {
        push_value(&mut out, value)?;
    }
    Ok(Octets::from_vec(out.into_vec()))
}
