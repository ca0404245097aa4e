//! Conditions on values, as they are told.
ghost use Rattle.std.specs.Prelude.{◌≡◌, ◌++◌, OnOk, Some};
ghost use Rattle.prompt_words.specs.Signs.{sign_text};
ghost use Rattle.std.specs.List.{flat_map};
ghost use Rattle.prompt_words.specs.ValueTexts.{reading_text, test_text, of_text, value_text, asked_text, change_text, values_text, changed_text, is_there, was_text};

use crate::names_reported::append_number;
use crate::naming::Naming;
use crate::value_names::{all_values, phase_word, value_name, value_unit};
use breakpoints::{Asked, Owner, Reading, Sign, Test, Value, ValueOf, Values};
use std::alloc::AllocError;

// A sign.
fn sign_text(sign: Sign) -> &'static [u8]
    ensures { result.now ≡ sign_text sign }
{
    match sign {
        Sign::Less => b"<",
        Sign::AtMost => b"<=",
        Sign::Greater => b">",
        Sign::AtLeast => b">=",
        Sign::Equal => b"=",
    }
}

/// Appends what is read, with a unit.
pub fn append_reading(out: &mut Vec<u8>, unit: &[u8], reading: Reading) -> Result<(), AllocError>
    ensures { OnOk result (out.new.items ≡ out.old.items ++ reading_text unit.now reading) }
{
    match reading {
        Reading::Number(n) => {
            append_number(out, n)?;
            out.extend_from_slice(unit)
        }
        Reading::Phase(phase) => out.extend_from_slice(phase_word(phase)),
        Reading::Nothing => out.extend_from_slice(b"-"),
    }
}

// Appends what is asked of a value with a unit.
fn append_test(out: &mut Vec<u8>, unit: &[u8], test: Test) -> Result<(), AllocError>
    ensures { OnOk result (out.new.items ≡ out.old.items ++ test_text unit.now test) }
{
    match test {
        Test::Within(bound) => {
            out.extend_from_slice(sign_text(bound.sign))?;
            append_reading(out, unit, Reading::Number(bound.number))
        }
        Test::Is(phase) => {
            out.extend_from_slice(b" ")?;
            out.extend_from_slice(phase_word(phase))
        }
    }
}

// Appends the link that a value is of.
fn append_of(out: &mut Vec<u8>, naming: &Naming, owner: Owner, of: u16) -> Result<(), AllocError>
    ensures { OnOk result (out.new.items ≡ out.old.items ++ of_text naming.now owner of) }
{
    match owner {
        Owner::Link => {
            out.extend_from_slice(b" ")?;
            naming.names.links.append_name(of, out)
        }
        Owner::Flow | Owner::Nothing => Ok(()),
    }
}

// Appends what is asked of a value.
fn append_asked(
    out: &mut Vec<u8>,
    naming: &Naming,
    value: Value,
    asked: Asked,
) -> Result<(), AllocError>
    ensures { OnOk result (out.new.items ≡ out.old.items ++ value_text naming.now value (Some asked)) }
{
    out.extend_from_slice(b" ")?;
    out.extend_from_slice(value_name(value))?;
    append_of(out, naming, value.owner(), asked.of)?;
    append_test(out, value_unit(value), asked.test)
}

// The same, where something is asked.
fn append_value(
    out: &mut Vec<u8>,
    naming: &Naming,
    value: Value,
    asked: Option<Asked>,
) -> Result<(), AllocError>
    ensures { OnOk result (out.new.items ≡ out.old.items ++ value_text naming.now value asked) }
{
    match asked {
        Some(asked) => append_asked(out, naming, value, asked),
        None => Ok(()),
    }
}

// Appends what is asked of each of these values.
fn append_each(
    out: &mut Vec<u8>,
    naming: &Naming,
    all: &[Value],
    values: Values,
) -> Result<(), AllocError>
    ensures { OnOk result (out.new.items ≡ out.old.items ++ flat_map (asked_text naming.now values) all.now) }
{
    for value in all {
        append_value(out, naming, *value, values.asked(*value))?;
    }
    Ok(())
}

// Appends which value has to change.
fn append_changing(out: &mut Vec<u8>, naming: &Naming, asked: ValueOf) -> Result<(), AllocError>
    ensures { OnOk result (out.new.items ≡ out.old.items ++ change_text naming.now (Some asked)) }
{
    out.extend_from_slice(b" change ")?;
    out.extend_from_slice(value_name(asked.value))?;
    out.extend_from_slice(b" ")?;
    naming.names.flows.append_name(asked.of, out)
}

// The same, where one is asked for.
fn append_change(
    out: &mut Vec<u8>,
    naming: &Naming,
    asked: Option<ValueOf>,
) -> Result<(), AllocError>
    ensures { OnOk result (out.new.items ≡ out.old.items ++ change_text naming.now asked) }
{
    match asked {
        Some(asked) => append_changing(out, naming, asked),
        None => Ok(()),
    }
}

/// Appends what values have to be.
pub(crate) fn append_values(
    out: &mut Vec<u8>,
    naming: &Naming,
    values: Values,
) -> Result<(), AllocError>
    ensures { OnOk result (out.new.items ≡ out.old.items ++ values_text naming.now values) }
{
    append_each(out, naming, all_values(), values)?;
    append_change(out, naming, values.change)
}

// Appends what a value was before it changed.
fn append_changed(out: &mut Vec<u8>, was: Reading, value: Value) -> Result<(), AllocError>
    ensures { OnOk result (out.new.items ≡ out.old.items ++ changed_text was value) }
{
    out.extend_from_slice(b" (")?;
    out.extend_from_slice(value_name(value))?;
    out.extend_from_slice(b" from ")?;
    append_reading(out, value_unit(value), was)?;
    out.extend_from_slice(b")")
}

// Whether something is read.
fn is_there(reading: Reading) -> bool
    ensures { result ≡ is_there reading }
{
    match reading {
        Reading::Number(_) | Reading::Phase(_) => true,
        Reading::Nothing => false,
    }
}

/// Appends what a value was before it changed, where that is known.
pub(crate) fn append_was(
    out: &mut Vec<u8>,
    was: Reading,
    asked: Option<ValueOf>,
) -> Result<(), AllocError>
    ensures { OnOk result (out.new.items ≡ out.old.items ++ was_text was asked) }
{
    match asked {
        Some(asked) => {
            if is_there(was) {
                append_changed(out, was, asked.value)
            } else {
                Ok(())
            }
        }
        None => Ok(()),
    }
}
