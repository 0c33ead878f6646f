//! Qubits that stand twice in an application.

ghost use Rattle.std.specs.Prelude.{◌≡◌, map, ◌==◌};
ghost use Rattle.std.specs.List.{list_any};
ghost use Rattle.qasm_scope.specs.Applications.{has_twice, instances};
ghost use Rattle.qasm_unroll.specs.Internal.Spans.{span_range, is_within, overlaps, any_overlap};

use crate::applications::{Span, instance_count};

/// Whether a qubit stands twice in an instance.
pub fn has_same_qubit(spans: &[Span]) -> bool
    ensures { result ≡ list_any (has_twice ◌==◌) (instances (map span_range spans.now)) }
{
    any_overlap(spans, instance_count(spans))
}

// Whether two arguments are the same qubit in one of so many instances.
fn any_overlap(spans: &[Span], count: usize) -> bool
    ensures { result ≡ any_overlap count (map span_range spans.now) }
{
    let mut rest = spans;
    while let [first, others @ ..] = rest {
        if overlaps_any(first, others, count) {
            return true;
        }
        rest = others;
    }
    false
}

// Whether an argument is the same qubit as one of the others is in one of so many instances.
fn overlaps_any(span: &Span, others: &[Span], count: usize) -> bool
    ensures { result
        ≡ list_any (overlaps count (span_range span.now)) (map span_range others.now) }
{
    others.iter().any(|other| overlaps(span, other, count))
}

// Whether two arguments are the same qubit in one of so many instances.
fn overlaps(one: &Span, other: &Span, count: usize) -> bool
    ensures { result ≡ overlaps count (span_range one.now) (span_range other.now) }
{
    match one {
        Span::Single(qubit) => match other {
            Span::Single(same) => same == qubit && count > 0,
            Span::Register { first, .. } => is_within(*qubit, *first, count),
        },
        Span::Register { first, .. } => match other {
            Span::Single(qubit) => is_within(*qubit, *first, count),
            Span::Register { first: same, .. } => same == first && count > 0,
        },
    }
}

// Whether a qubit is one of so many from the first on.
fn is_within(qubit: usize, first: usize, count: usize) -> bool
    ensures { result ≡ is_within qubit first count }
{
    first <= qubit && qubit - first < count
}
