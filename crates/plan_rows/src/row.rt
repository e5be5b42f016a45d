//! What is told of a row.

use crate::shown::fault_text;
use crate::trial::{BEFORE, Outcome, holds_changed, tried};
use bal_base::{Fault, Memory, Stop};
use row_lines::{Judge, Row, Told};
use std::alloc::Global;

/// Rows of bodies.
#[derive(Clone, Copy)]
pub struct Bodies;

impl Judge for Bodies {
    fn judge(&mut self, row: &Row, told: &mut Told) {
        match row.head.as_str().split_once(" | ") {
            Some((body, wanted)) => judge_body(body, wanted, told),
            None => told.fails("it isn't of the form of a row"),
        }
    }
}

fn judge_body(body: &str, wanted: &str, told: &mut Told) {
    let (wanted, order) = parted(wanted);
    match wanted.strip_prefix("plan ") {
        Some(change) => judge_change(body, change, order, told),
        None => judge_plan(body, wanted, order, told),
    }
}

fn judge_plan(body: &str, wanted: &str, order: &str, told: &mut Told) {
    match tried(told.alloc(), body, order) {
        Ok(tried) => judge_tried(&tried, wanted, told),
        Err(Stop::Fault(fault)) => judge_fault(&fault, wanted, told),
        Err(Stop::Memory) => told.memory(),
    }
}

fn judge_change(body: &str, change: &str, wanted: &str, told: &mut Told) {
    match holds_changed(told.alloc(), body, change) {
        Ok(Some(true)) => told.text("plan", wanted, "right"),
        Ok(Some(false)) => told.text("plan", wanted, "wrong"),
        Ok(None) => told.fails("there is no such change, or the two tests of plans don't agree"),
        Err(Stop::Fault(_)) => told.fails("the body has a fault"),
        Err(Stop::Memory) => told.memory(),
    }
}

/// What is wanted, and the events whose ranks are compared.
fn parted(wanted: &str) -> (&str, &str) {
    match wanted.split_once(" | ") {
        Some(both) => both,
        None => (wanted, ""),
    }
}

fn judge_tried(tried: &Outcome, wanted: &str, told: &mut Told) {
    let came = match tried.pairs.as_str() {
        "" => "none",
        pairs => pairs,
    };
    told.text("pairs", wanted, came);
    if !tried.is_checked {
        told.fails("the plan isn't taken for one");
    }
    if tried.is_lax {
        told.fails("a plan without pairs, or with one rank for all events, is taken for one");
    }
    if !tried.rises {
        told.fails("ranks don't rise as they are to");
    }
}

fn judge_fault(fault: &Fault, wanted: &str, told: &mut Told) {
    match fault_shown(told.alloc(), fault) {
        Ok(came) => told.text("fault", wanted, came.as_str()),
        Err(Memory) => told.memory(),
    }
}

fn fault_shown(alloc: Global, fault: &Fault) -> Result<String, Memory> {
    fault_text(alloc, fault, BEFORE.len())
}
