//! A design's document, as a table of TOML.

ghost use Rattle.std.specs.Prelude.{◌≡◌, IfOk, Some};
ghost use Rattle.std.specs.Option.{option_map};
ghost use Rattle.toml.specs.Data.{get_member};
ghost use Rattle.toml.specs.View.{view, table_view, items_view};
ghost use Rattle.title_terms.specs.DesignText.{text_said, number_said, list_said, mark_said, marks_said, natural, proposal_in, design_in};
ghost use Rattle.designs.specs.Answers.{Gives};
ghost use Rattle.designs.specs.Found.{Finds, fields_said};

use crate::design::Design;
use crate::errors::DesignError;
use crate::judging::{Wanted, judge};
use std::alloc::{AllocError, Global};
use title_terms::{DesignFault, Key};
use toml::{Table, Value};

/// What stands at the seven keys.
#[derive(Clone, Copy)]
pub(crate) struct Fields<'t> {
    pub(crate) name: &'t str,
    pub(crate) bits: Option<u64>,
    pub(crate) dimension: Option<u64>,
    pub(crate) bound: Option<u64>,
    pub(crate) prefix: &'t str,
    pub(crate) suffix: &'t str,
    pub(crate) marked: &'t Vec<Value>,
}

/// The design that the table says, or the first thing that is wrong with it.
pub(crate) fn design_in(alloc: Global, table: &Table) -> Result<Design, DesignError>
    ensures { Gives result (design_in (Some (table_view table.now))) }
{
    let fields = fields_in(table)?;
    let marked = marks_in(alloc, fields.marked)?;
    let wanted = Wanted {
        name: fields.name,
        bits: fields.bits,
        dimension: fields.dimension,
        bound: fields.bound,
        prefix: fields.prefix,
        suffix: fields.suffix,
        marked: marked.as_slice(),
    };
    judge(alloc, &wanted)
}

/// What stands at the seven keys, looked up in their order.
#[tactic(auto, unfolding(title_terms::specs::DesignText::proposal_in))]
fn fields_in(table: &Table) -> Result<Fields<'_>, DesignFault>
    ensures { Finds fields_said result (proposal_in (table_view table.now)) }
{
    let name = text_at(table, "name", Key::Name)?;
    let bits = number_at(table, "m", Key::M)?;
    let dimension = number_at(table, "k", Key::K)?;
    let bound = number_at(table, "c", Key::C)?;
    let prefix = text_at(table, "prefix", Key::Prefix)?;
    let suffix = text_at(table, "suffix", Key::Suffix)?;
    let marked = list_at(table, "marked", Key::Marked)?;
    Ok(Fields {
        name,
        bits,
        dimension,
        bound,
        prefix,
        suffix,
        marked,
    })
}

/// The text at a key.
fn text_at<'t>(table: &'t Table, name: &str, key: Key) -> Result<&'t str, DesignFault>
    ensures { Finds (λ text. text.now) result
        (text_said key (get_member name.now (table_view table.now))) }
{
    match value_at(table, name) {
        None => Err(DesignFault::Missing(key)),
        Some(Value::String(text)) => Ok(text.as_str()),
        Some(_) => Err(DesignFault::WrongType(key)),
    }
}

/// The whole number at a key: `None` where it is below 0.
fn number_at(table: &Table, name: &str, key: Key) -> Result<Option<u64>, DesignFault>
    ensures { Finds (λ number. number) result
        (number_said key (get_member name.now (table_view table.now))) }
{
    match value_at(table, name) {
        None => Err(DesignFault::Missing(key)),
        Some(Value::Integer(number)) => Ok(natural(*number)),
        Some(_) => Err(DesignFault::WrongType(key)),
    }
}

/// The list at a key.
fn list_at<'t>(table: &'t Table, name: &str, key: Key) -> Result<&'t Vec<Value>, DesignFault>
    ensures { Finds (λ items. marks_said (items_view items.now.items)) result
        (list_said key (get_member name.now (table_view table.now))) }
{
    match value_at(table, name) {
        None => Err(DesignFault::Missing(key)),
        Some(Value::Array(items)) => Ok(items),
        Some(_) => Err(DesignFault::WrongType(key)),
    }
}

/// What stands at a key.
fn value_at<'t>(table: &'t Table, name: &str) -> Option<&'t Value>
    ensures { option_map (λ v. view v.now) result ≡ get_member name.now (table_view table.now) }
{
    table.get(name)
}

/// The number, where it is not below 0.
fn natural(number: i64) -> Option<u64>
    ensures { result ≡ natural number }
{
    u64::try_from(number).ok()
}

/// The items as numbers: `None` for what is no whole number, or below 0.
fn marks_in(alloc: Global, items: &Vec<Value>) -> Result<Vec<Option<u64>>, AllocError>
    ensures { IfOk result (λ marks. marks.items ≡ marks_said (items_view items.now.items)) }
{
    let mut marks = Vec::new(alloc);
    'items: for item in items.iter() {
        match marks.push(mark_at(item)) {
            Ok(()) => {}
            Err(error) => return Err(error.into()),
        }
    }
    Ok(marks)
}

/// The number that an item is.
fn mark_at(item: &Value) -> Option<u64>
    ensures { result ≡ mark_said (view item.now) }
{
    match item {
        Value::Integer(number) => natural(*number),
        _ => None,
    }
}
