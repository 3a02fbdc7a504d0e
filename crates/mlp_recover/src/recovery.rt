//! What is intact in damaged bytes.
ghost use Rattle.std.specs.Prelude.{◌≡◌, ◌≤◌, ◌<◌, ◌++◌, ◌∷◌, [], length, All, IfOk, OnOk};
ghost use Rattle.mlp_io.specs.Limit.{limit};
ghost use Rattle.mlp_recover.specs.Spans.{HasFewFrames, AreSpans};
ghost use Rattle.mlp_recover.specs.Reading.{lost_between};

use crate::interval::interval;
use crate::span::{Span, Spans};
use crate::sync::next_sync;
use arrayvec::ArrayVec;
use mlp_present::Decoder;
use mlp_syntax::Memory;
use std::alloc::Global;

/// Puts the bytes that lie between two kept intervals behind other spans, if there are any.
fn push_lost(spans: &mut Vec<Span>, from: usize, to: usize) -> Result<(), Memory>
    ensures { OnOk result (spans.new.items ≡ spans.old.items ++ lost_between from to) }
{
    if from < to {
        let lost = Span {
            first: from as u64,
            past: to as u64,
            kept: false,
            units: 0,
            frames: 0,
            channels: 0,
            rate: 0,
        };
        spans.push(lost).map_err(|_| Memory)?;
    }
    Ok(())
}

/// Puts a kept interval behind other spans, and before it the bytes that are lost from `told` on.
fn push_kept(spans: &mut Vec<Span>, told: usize, span: Span) -> Result<(), Memory>
    ensures { OnOk result (spans.new.items ≡ spans.old.items ++ lost_between told span.first ++ span ∷ []) }
{
    push_lost(spans, told, span.first as usize)?;
    spans.push(span).map_err(|_| Memory)?;
    Ok(())
}

/// The restart intervals of presentation `k` that are streams by themselves, and the bytes that are lost between them. An
/// interval ends where the bytes end, with a terminator, or before a unit with a major sync that meets every rule as its next
/// unit.
///
/// # Errors
///
/// [`Memory`] where there is none for the spans.
pub fn recover(alloc: Global, k: u8, bytes: &[u8]) -> Result<Spans, Memory>
    requires exists { k ≤ 2 }
    requires few { length bytes.now ≤ limit }
    ensures spans { IfOk result (AreSpans k bytes.now) }
    ensures few { IfOk result (λ spans. All HasFewFrames spans) }
{
    let mut spans = Vec::new(alloc);
    let mut decoder = Decoder::open(k);
    let mut rows = ArrayVec::new();
    let mut told = 0;
    let mut at = 0;
    'syncs: while let Some(first) = next_sync(bytes, at) {
        match interval(&mut decoder, &mut rows, k, bytes, first) {
            Some(span) => {
                push_kept(&mut spans, told, span)?;
                told = span.past as usize;
                at = told;
            }
            None => at = first + 1,
        }
    }
    push_lost(&mut spans, told, bytes.len())?;
    Ok(Spans { items: spans })
}
