//! Statements in bodies of gates: what is wrong with them, and the calls that they are kept as.

ghost use Rattle.std.specs.Prelude.{◌≡◌, map, IfOk, IfSome, IfNone, true};
ghost use Rattle.std.specs.List.{list_any};
ghost use Rattle.qasm_scope.specs.Faults.{is_other};
ghost use Rattle.qasm_names.specs.Bodies.{is_faulty};
ghost use Rattle.qasm_names.specs.Internal.Applications.{apply_of, application_faults, IsCall};
ghost use Rattle.qasm_names.specs.Internal.Called.{AreFound};
ghost use Rattle.qasm_names.specs.Places.{place_in};

use crate::applied_gates::{applied_gate, gate_faults};
use crate::body_faults::BodyFaults;
use crate::formals::Formals;
use crate::gates::GateCall;
use crate::names::Names;
use crate::places::{Places, has_name_twice};
use qasm_reader::BodyApplication;
use smallvec::SmallVec;
use std::alloc::{AllocError, Global};

/// The call that an application in a body is kept as; none where something is wrong with it.
pub fn call_of<'a>(
    alloc: Global,
    names: &Names<'a>,
    formals: &Formals<'a>,
    application: &BodyApplication<'a>,
) -> Result<Option<GateCall>, AllocError>
    ensures some { IfOk result (λ found. IfSome found (λ call.
        IsCall names.now.symbols formals.now (apply_of application.now) call)) }
    ensures none { IfOk result (λ found. IfNone found (is_faulty
        (application_faults names.now.symbols formals.now (apply_of application.now)) ≡ true)) }
{
    let count = application.qubits.len();
    let gate = &application.gate;
    let Some(applied) = applied_gate(alloc, names, formals, gate, &application.angles, count)?
    else {
        return Ok(None);
    };
    let Some(qubits) = places_of(alloc, &formals.qubits, &application.qubits)? else {
        return Ok(None);
    };
    if has_name_twice(alloc, &application.qubits)? {
        return Ok(None);
    }
    Ok(Some(GateCall {
        called: applied.called,
        angles: applied.angles,
        qubits,
    }))
}

/// What is wrong with an application in a body, by one pass for each fault.
pub fn application_faults<'a>(
    alloc: Global,
    names: &Names<'a>,
    formals: &Formals<'a>,
    application: &BodyApplication<'a>,
) -> Result<BodyFaults, AllocError>
    ensures { IfOk result (λ faults. faults
        ≡ application_faults names.now.symbols formals.now (apply_of application.now)) }
{
    let count = application.qubits.len();
    let faults = gate_faults(
        names,
        formals,
        &application.gate,
        &application.angles,
        count,
    );
    Ok(BodyFaults {
        unsupported: faults.unsupported,
        unknown: faults.unknown || any_unplaced(&formals.qubits, &application.qubits),
        wrong_count: faults.wrong_count,
        same_qubit: has_name_twice(alloc, &application.qubits)?,
    })
}

/// Whether one of the names has no place.
pub fn any_unplaced<'a>(places: &Places<'a>, names: &[&'a [u8]]) -> bool
    ensures { result ≡ list_any (is_other (place_in places.now)) (map (λ name. name.now) names.now) }
{
    for name in names {
        if places.find(*name).is_none() {
            return true;
        }
    }
    false
}

// The places of names; none where one of them has no place.
fn places_of<'a>(
    alloc: Global,
    places: &Places<'a>,
    names: &[&'a [u8]],
) -> Result<Option<SmallVec<usize, 2>>, AllocError>
    ensures some { IfOk result (λ found. IfSome found (λ qubits.
        AreFound places.now (map (λ name. name.now) names.now) qubits.items)) }
    ensures none { IfOk result (λ found. IfNone found (
        list_any (is_other (place_in places.now)) (map (λ name. name.now) names.now) ≡ true)) }
{
    let mut found = SmallVec::with_capacity(alloc, names.len())?;
    for name in names {
        let Some(place) = places.find(*name) else {
            return Ok(None);
        };
        found.push(place)?;
    }
    Ok(Some(found))
}
