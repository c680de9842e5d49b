//! The findings that a report says.

ghost use Rattle.std.specs.Prelude.{◌≡◌, ◌^◌, Some, option_map, option_and_then};
ghost use Rattle.serde_json.specs.View.{view, items_view};
ghost use Rattle.serde_json.specs.Find.{get, as_u64, as_str, as_array};
ghost use Rattle.report_terms.specs.Reports.{number_said, name_said, all_said, place_said, accused_said, findings_said, report_of};
ghost use Rattle.trace_report.specs.Answers.{Tells};

use crate::errors::ReportError;
use desk_terms::{Accused, AccusedList, Findings, Places};
use lists::{Items, Text};
use serde_json::Value;
use std::alloc::Global;
use texts::is_plain;

/// The findings that the bytes say, as a document of JSON with the three keys of a report.
pub fn report_read(alloc: Global, bytes: &[u8]) -> Result<Findings, ReportError>
    ensures { Tells (λ findings. findings) result (report_of bytes.now) }
{
    match Value::from_slice(alloc, bytes) {
        Ok(value) => findings_in(alloc, &value),
        Err(error) if error.is_memory() => Err(ReportError::Memory),
        Err(_) => Err(ReportError::NotReport),
    }
}

/// The findings that a value is.
#[tactic(auto, unfolding(report_terms::specs::Reports::findings_said))]
fn findings_in(alloc: Global, value: &Value) -> Result<Findings, ReportError>
    ensures { Tells (λ findings. findings) result (findings_said (view value.now)) }
{
    let accused = list_at(value, "accused").ok_or(ReportError::NotReport)?;
    let accused = accused_in(alloc, accused)?;
    let bound = number_at(value, "bound").ok_or(ReportError::NotReport)?;
    let readable = number_at(value, "readable").ok_or(ReportError::NotReport)?;
    Ok(Findings {
        readable,
        bound,
        accused: Items::over(accused),
    })
}

/// The accused that the items are, in order.
fn accused_in(alloc: Global, items: &Vec<Value>) -> Result<Vec<Accused>, ReportError>
    ensures { Tells (λ accused. accused.items) result
        (all_said accused_said (items_view items.now.items)) }
{
    let mut accused = Vec::new(alloc);
    'items: for item in items.iter() {
        accused.push(one_in(alloc, item)?)?;
    }
    Ok(accused)
}

/// The accused that a value is.
#[tactic(auto, unfolding(report_terms::specs::Reports::accused_said))]
fn one_in(alloc: Global, value: &Value) -> Result<Accused, ReportError>
    ensures { Tells (λ accused. accused) result (accused_said (view value.now)) }
{
    let name = name_at(value, "name").ok_or(ReportError::NotReport)?;
    let places = list_at(value, "places").ok_or(ReportError::NotReport)?;
    let places = places_in(alloc, places)?;
    let serial = number_at(value, "serial").ok_or(ReportError::NotReport)?;
    Ok(Accused {
        serial,
        name: Text::of(alloc, name)?,
        places: Items::over(places),
    })
}

/// The places that the items are, in order.
fn places_in(alloc: Global, items: &Vec<Value>) -> Result<Vec<u16>, ReportError>
    ensures { Tells (λ places. places.items) result
        (all_said place_said (items_view items.now.items)) }
{
    let mut places = Vec::new(alloc);
    'items: for item in items.iter() {
        let place = place_in(item).ok_or(ReportError::NotReport)?;
        places.push(place)?;
    }
    Ok(places)
}

/// The place that a value is.
fn place_in(value: &Value) -> Option<u16>
    ensures { result ≡ place_said (view value.now) }
{
    u16::try_from(value.as_u64()?).ok()
}

/// The number at a key.
fn number_at(value: &Value, key: &str) -> Option<u32>
    ensures { result ≡ option_and_then (number_said (2 ^ 32)) (get key.now (view value.now)) }
{
    u32::try_from(value.get(key)?.as_u64()?).ok()
}

/// The plain name at a key.
fn name_at<'v>(value: &'v Value, key: &str) -> Option<&'v str>
    ensures { option_map (λ name. name.now) result
        ≡ option_and_then name_said (get key.now (view value.now)) }
{
    let name = value.get(key)?.as_str()?;
    if is_plain(name) { Some(name) } else { None }
}

/// The items of the list at a key.
fn list_at<'v>(value: &'v Value, key: &str) -> Option<&'v Vec<Value>>
    ensures { option_map (λ items. items_view items.now.items) result
        ≡ option_and_then as_array (get key.now (view value.now)) }
{
    value.get(key)?.as_array()
}
