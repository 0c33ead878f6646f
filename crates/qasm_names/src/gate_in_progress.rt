//! Gates whose declarations are taken in statement by statement.

ghost use Rattle.std.specs.Prelude.{◌≡◌, ◌∷◌, ◌++◌, [], IfOk, OnOk, None, Some, Err};
ghost use Rattle.std.specs.Str.{bytes_eq};
ghost use Rattle.qasm_reader.specs.Parts.{with_statement};
ghost use Rattle.qasm_reader.specs.Syntax.{BodyApplied, DeclareGate, GateForm};
ghost use Rattle.qasm_reader.specs.Views.{body_sentence, form_of};
ghost use Rattle.qasm_scope.specs.declared.causes.Cause.{Cause};
ghost use Rattle.qasm_scope.specs.Faults.{wrong_in};
ghost use Rattle.qasm_names.specs.Begun.{IsBegun, IsFaultlessGate};
ghost use Rattle.qasm_names.specs.Internal.Applications.{apply_of};
ghost use Rattle.qasm_names.specs.Checks.{is_redeclared_by};
ghost use Rattle.qasm_names.specs.Kept.{Represents, gate_declaration};
ghost use Rattle.qasm_names.specs.declared.names.Names.{Names};
ghost use Rattle.qasm_scope.specs.Scope.{Scope, Gate, declared};
ghost use Rattle.qasm_scope.specs.Applications.{has_twice};

use crate::bodies::{any_unplaced, application_faults, call_of};
use crate::body_faults::BodyFaults;
use crate::formals::Formals;
use crate::gates::{GateBody, GateCall};
use crate::names::Names;
use crate::places::has_name_twice;
use crate::statement_error::StatementError;
use qasm_reader::{BodyApplication, BodyStatement, GateHeading};
use qasm_scope::Cause;
use std::alloc::{AllocError, Global};

/// A gate that is being declared: its heading, and what the statements of its body are kept as so far.
#[derive(Drop)]
pub struct GateInProgress<'a> {
    name: &'a [u8],
    angles: usize,
    qubits: usize,
    formals: Formals<'a>,
    redeclared: bool,
    faults: BodyFaults,
    calls: Vec<GateCall>,
}

impl<'a> GateInProgress<'a> {
    /// The gate with this heading, before the first statement of its body.
    pub fn new(
        alloc: Global,
        names: &Names<'a>,
        heading: &GateHeading<'a>,
    ) -> Result<GateInProgress<'a>, AllocError>
        ensures { IfOk result (λ gate. IsBegun names.now gate (form_of heading.now [])) }
    {
        Ok(GateInProgress {
            name: heading.name,
            angles: heading.parameters.len(),
            qubits: heading.qubits.len(),
            formals: Formals::new(alloc, heading)?,
            redeclared: is_redeclared(alloc, names, heading)?,
            faults: BodyFaults::none(),
            calls: Vec::new(alloc),
        })
    }

    /// Its name.
    pub fn name(&self) -> &'a [u8]
        ensures { (names : Names) (form : GateForm) → IsBegun names self.now form
            → result.now ≡ form.name }
    {
        self.name
    }

    /// Takes in the next statement of the body. What is wrong with it is told by `declare`.
    pub fn take(
        &mut self,
        alloc: Global,
        names: &Names<'a>,
        statement: &BodyStatement<'a>,
    ) -> Result<(), AllocError>
        ensures { OnOk result ((form : GateForm) → IsBegun names.now self.old form
            → IsBegun names.now self.new (with_statement form (body_sentence statement.now))) }
    {
        match statement {
            BodyStatement::Apply(application) => self.take_application(alloc, names, application),
            BodyStatement::Barrier(qubits) => {
                let unknown = any_unplaced(&self.formals.qubits, qubits);
                self.faults = self.faults.and(BodyFaults {
                    unknown,
                    ..BodyFaults::none()
                });
                Ok(())
            }
        }
    }

    // Takes in an application. A call is kept of it as long as nothing is wrong.
    fn take_application(
        &mut self,
        alloc: Global,
        names: &Names<'a>,
        application: &BodyApplication<'a>,
    ) -> Result<(), AllocError>
        ensures { OnOk result ((form : GateForm) → IsBegun names.now self.old form
            → IsBegun names.now self.new
            (with_statement form (BodyApplied (apply_of application.now)))) }
    {
        if !self.faults.any() {
            if let Some(call) = call_of(alloc, names, &self.formals, application)? {
                self.calls.push(call)?;
                return Ok(());
            }
        }
        let faults = application_faults(alloc, names, &self.formals, application)?;
        self.faults = self.faults.and(faults);
        Ok(())
    }

    /// Declares the gate, where nothing is wrong with its declaration.
    ///
    /// # Errors
    ///
    /// `Wrong` with the first cause of `Unsupported`, `Redeclared`, `Unknown`, `WrongCount` and `SameQubit`; and
    /// `NoMemory` where memory runs out.
    pub fn declare(self, names: &mut Names<'a>) -> Result<(), StatementError>
        ensures ok { (form : GateForm) → IsBegun names.old self.entry form
            → OnOk result ((scope : Scope) → Represents names.old scope
            → wrong_in scope (DeclareGate form) ≡ None) }
        ensures declared { (form : GateForm) → IsBegun names.old self.entry form
            → OnOk result ((scope : Scope) → Represents names.old scope
            → Represents names.new (declared form.name (Gate form) ∷ scope)) }
        ensures err { (form : GateForm) (cause : Cause) (scope : Scope)
            → IsBegun names.old self.entry form → result ≡ Err (StatementError.Wrong cause)
            → Represents names.old scope → wrong_in scope (DeclareGate form) ≡ Some cause }
    {
        if let Some(cause) = self.faults.cause(self.redeclared) {
            return Err(StatementError::Wrong(cause));
        }
        self.declare_faultless(names, false)?;
        Ok(())
    }

    /// Declares the gate, with whose declaration nothing is wrong. If it is replaceable, the program may declare its
    /// name again.
    pub fn declare_faultless(
        self,
        names: &mut Names<'a>,
        replaceable: bool,
    ) -> Result<(), AllocError>
        ensures { OnOk result ((form : GateForm) (scope : Scope) → IsBegun names.old self.entry form
            → Represents names.old scope → IsFaultlessGate scope form replaceable
            → Represents names.new (gate_declaration form replaceable ∷ scope)) }
    {
        let body = GateBody { calls: self.calls };
        names.declare_gate(self.name, self.angles, self.qubits, body, replaceable)
    }
}

// Whether the gate's name is taken, or two formal names are equal.
fn is_redeclared<'a>(
    alloc: Global,
    names: &Names<'a>,
    heading: &GateHeading<'a>,
) -> Result<bool, AllocError>
    ensures { IfOk result (λ answer. answer
        ≡ is_redeclared_by names.now.symbols (form_of heading.now [])) }
{
    if names.is_taken(heading.name) {
        Ok(true)
    } else {
        repeats(alloc, heading)
    }
}

// Whether two formal names of a gate are equal.
fn repeats(alloc: Global, heading: &GateHeading<'_>) -> Result<bool, AllocError>
    ensures { IfOk result (λ twice. twice
        ≡ has_twice bytes_eq ((form_of heading.now []).parameters ++ (form_of heading.now []).qubits)) }
{
    let mut names = Vec::new(alloc);
    names.extend_from_slice(&heading.parameters)?;
    names.extend_from_slice(&heading.qubits)?;
    has_name_twice(alloc, &names)
}
