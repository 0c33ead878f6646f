//! What no clause says: that parsing succeeds with ample memory, that long expressions take neither stack nor much
//! time, and worked examples.

use qasm_lexer::{LexError, Token, lex};
use qasm_reader::{
    BodyPart, BodyStatement, Expression, Item, Operation, Operator, ParseError, Part, Program,
    ProgramElement, StatementKind, next_in_body, next_part, parse,
};
use std::alloc::Global;
use std::test::Fail;

// The tokens of a text.
fn tokens_of<'a>(alloc: Global, text: &'a [u8]) -> Result<Vec<Token<'a>>, Fail> {
    Ok(lex(alloc, text)?)
}

// The program that tokens are.
fn program_of<'a>(alloc: Global, tokens: &[Token<'a>]) -> Result<Program<'a>, ParseError> {
    parse(alloc, tokens)
}

// What is wrong with tokens.
fn fault_in(alloc: Global, tokens: &[Token<'_>]) -> Option<ParseError> {
    program_of(alloc, tokens).err()
}

// The word for an item in postfix order.
fn word_of<'a>(item: &Item<'a>) -> &'a [u8] {
    match item {
        Item::Number(text) => text,
        Item::Pi => b"pi",
        Item::Name(name) => name,
        Item::Negate => b"~",
        Item::Binary(Operator::Add) => b"+",
        Item::Binary(Operator::Subtract) => b"-",
        Item::Binary(Operator::Multiply) => b"*",
        Item::Binary(Operator::Divide) => b"/",
        Item::Binary(Operator::Power) => b"^",
        Item::Call(_) => b"f",
    }
}

// Adds an angle in postfix order, with a space after each word.
fn add_angle(text: &mut Vec<u8>, angle: &Expression<'_>) -> Result<(), Fail> {
    for item in angle.items() {
        text.extend_from_slice(word_of(item))?;
        text.push(b' ')?;
    }
    Ok(())
}

fn add_angles(text: &mut Vec<u8>, angles: &[Expression<'_>]) -> Result<(), Fail> {
    for angle in angles {
        add_angle(text, angle)?;
    }
    Ok(())
}

// The angles of an application; none, where it is another element.
fn angles_in<'e, 'a>(element: &'e ProgramElement<'a>) -> &'e [Expression<'a>] {
    match element {
        ProgramElement::Statement(statement) => match &statement.kind {
            StatementKind::Operation(Operation::Apply(application)) => &application.angles,
            _ => &[],
        },
        ProgramElement::Gate { .. } => &[],
    }
}

// Adds the angles of the applications in a program.
fn add_all_angles(text: &mut Vec<u8>, program: &Program<'_>) -> Result<(), Fail> {
    for element in &program.elements {
        add_angles(text, angles_in(element))?;
    }
    Ok(())
}

// The angles of the applications in a program.
fn all_angles(alloc: Global, program: &Program<'_>) -> Result<Vec<u8>, Fail> {
    let mut text = Vec::new(alloc);
    add_all_angles(&mut text, program)?;
    Ok(text)
}

// The angles of the program that tokens are.
fn angles_of(alloc: Global, tokens: &[Token<'_>]) -> Result<Vec<u8>, Fail> {
    let program = program_of(alloc, tokens)?;
    all_angles(alloc, &program)
}

// Whether the program that a text is has these angles.
fn has_angles(alloc: Global, text: &[u8], angles: &[u8]) -> Result<bool, Fail> {
    let tokens = tokens_of(alloc, text)?;
    have_angles(alloc, &tokens, angles)
}

fn have_angles(alloc: Global, tokens: &[Token<'_>], angles: &[u8]) -> Result<bool, Fail> {
    Ok(angles_of(alloc, tokens)?.as_slice() == angles)
}

// Applications, and their angles in postfix order.
const ANGLES: [(&[u8], &[u8]); 10] = [
    (b"g ( a - b - c ) q ;", b"a b - c - "),
    (b"g ( a / b / c ) q ;", b"a b / c / "),
    (b"g ( a ^ b ^ c ) q ;", b"a b c ^ ^ "),
    (b"g ( - a ^ b ) q ;", b"a ~ b ^ "),
    (b"g ( - a * b + c ) q ;", b"a ~ b * c + "),
    (b"g ( a + b * c - d / 2 ) q ;", b"a b c * + d 2 / - "),
    (b"g ( ( a + b ) * - - c ) q ;", b"a b + c ~ ~ * "),
    (b"g ( sin ( pi / 2 ) ^ 2 ) q ;", b"pi 2 / f 2 ^ "),
    (
        b"g ( - ( a ) ^ - 2.0 , sqrt ( b ) ) q ;",
        b"a ~ 2.0 ~ ^ b f ",
    ),
    (b"g ( ) q ; g q ; U ( a , b , c ) q ;", b"a b c "),
];

#[test]
fn operators_bind_as_the_grammar_says(rt: HostRuntime) -> Result<(), Fail> {
    for (i, (text, angles)) in ANGLES.iter().enumerate() {
        assert!(rt; has_angles(rt.alloc(), text, angles)?, "row {i}");
    }
    Ok(())
}

// The number of an element's form, in the order of the forms.
fn form_of(element: &ProgramElement<'_>) -> usize {
    match element {
        ProgramElement::Statement(statement) => form_of_statement(&statement.kind),
        ProgramElement::Gate { .. } => 4,
    }
}

// The number of a statement's form.
fn form_of_statement(kind: &StatementKind<'_>) -> usize {
    match kind {
        StatementKind::Version(_) => 0,
        StatementKind::Include(_) => 1,
        StatementKind::QubitRegister { .. } => 2,
        StatementKind::BitRegister { .. } => 3,
        StatementKind::Opaque(_) => 5,
        StatementKind::If { .. } => 6,
        StatementKind::Barrier(_) => 7,
        StatementKind::Operation(Operation::Apply(_)) => 8,
        StatementKind::Operation(Operation::Measure { .. }) => 9,
        StatementKind::Operation(Operation::Reset(_)) => 10,
    }
}

// The form of a program's one statement.
fn form_of_one(program: &Program<'_>) -> Option<usize> {
    match program.elements.as_slice() {
        [element] => Some(form_of(element)),
        _ => None,
    }
}

fn form_of_tokens(alloc: Global, tokens: &[Token<'_>]) -> Result<Option<usize>, Fail> {
    let program = program_of(alloc, tokens)?;
    Ok(form_of_one(&program))
}

// The form of the one statement that a text is.
fn form_of_text(alloc: Global, text: &[u8]) -> Result<Option<usize>, Fail> {
    let tokens = tokens_of(alloc, text)?;
    form_of_tokens(alloc, &tokens)
}

// Statements, and their forms.
const STATEMENTS: [(&[u8], usize); 16] = [
    (b"OPENQASM 2.0 ;", 0),
    (b"include \"qelib1.inc\" ;", 1),
    (b"qreg q [ 2 ] ;", 2),
    (b"creg c [ 2 ] ;", 3),
    (b"gate g a { }", 4),
    (
        b"gate g ( ) a , b { barrier a , b ; U ( 2 , pi , x ) a ; }",
        4,
    ),
    (b"gate g ( x , y ) a { CX a , a ; h a ; r ( ) a ; }", 4),
    (b"opaque g a ;", 5),
    (b"opaque g ( x ) a , b ;", 5),
    (b"if ( c == 2 ) x q ;", 6),
    (b"if ( c == 2 ) measure q -> c ;", 6),
    (b"barrier q , r [ 2 ] ;", 7),
    (b"CX q [ 2 ] , r ;", 8),
    (b"measure q [ 2 ] -> c [ 2 ] ;", 9),
    (b"measure q -> c ;", 9),
    (b"reset q ;", 10),
];

#[test]
fn each_form_of_statement_is_read(rt: HostRuntime) -> Result<(), Fail> {
    for (text, form) in &STATEMENTS {
        let found = form_of_text(rt.alloc(), text)?;
        assert_eq!(rt; found, Some(*form));
    }
    Ok(())
}

// The tokens behind a gate's heading at the first byte, where that comes next.
fn behind_heading<'t, 'a>(
    alloc: Global,
    tokens: &'t [Token<'a>],
) -> Result<Option<&'t [Token<'a>]>, Fail> {
    let next = next_part(alloc, tokens)?;
    Ok(match &next {
        Some((Part::Heading { place: 0, .. }, rest)) => Some(*rest),
        _ => None,
    })
}

// A part of a gate's body.
#[derive(Clone, Copy, PartialEq, Eq)]
enum InBody {
    Apply,
    Barrier,
    End,
}

fn part_of(part: &BodyPart<'_>) -> InBody {
    match part {
        BodyPart::Statement(BodyStatement::Apply(_)) => InBody::Apply,
        BodyPart::Statement(BodyStatement::Barrier(_)) => InBody::Barrier,
        BodyPart::End => InBody::End,
    }
}

// The tokens behind such a part, where that comes next.
fn behind_part<'t, 'a>(
    alloc: Global,
    tokens: &'t [Token<'a>],
    wanted: InBody,
) -> Result<Option<&'t [Token<'a>]>, Fail> {
    let next = next_in_body(alloc, tokens)?;
    Ok(match &next {
        Some((part, rest)) if part_of(part) == wanted => Some(*rest),
        _ => None,
    })
}

// The parts of the body in `a_gate_is_read_part_by_part`.
const PARTS: [InBody; 4] = [InBody::Apply, InBody::Barrier, InBody::Apply, InBody::End];

// How many tokens follow a gate of these parts.
fn tokens_behind_gate(alloc: Global, tokens: &[Token<'_>]) -> Result<usize, Fail> {
    let mut rest = behind_heading(alloc, tokens)?.ok_or("no heading")?;
    for part in &PARTS {
        rest = behind_part(alloc, rest, *part)?.ok_or("another part")?;
    }
    Ok(rest.len())
}

#[test]
fn a_gate_is_read_part_by_part(rt: HostRuntime) -> Result<(), Fail> {
    let text = b"gate g a , b { h a ; barrier a , b ; CX a , b ; } g q , r ;";
    let tokens = tokens_of(rt.alloc(), text)?;
    let count = tokens_behind_gate(rt.alloc(), &tokens)?;
    assert_eq!(rt; count, 5);
    Ok(())
}

// What is wrong with the tokens of a text.
fn fault_of_text(alloc: Global, text: &[u8]) -> Result<Option<ParseError>, Fail> {
    let tokens = tokens_of(alloc, text)?;
    Ok(fault_in(alloc, &tokens))
}

// Tokens that are no program, and where the first faulty statement begins.
const REFUSED: [(&[u8], usize); 18] = [
    (b"gate g a { } ;", 13),
    (b"qreg q [ 2 ] ; x q", 15),
    (b"qreg q [ 2 ] ; x q , ;", 15),
    (b"qreg q [ 2.0 ] ;", 0),
    (b"creg c [ 2 ]", 0),
    (b"OPENQASM 2 ;", 0),
    (b"gate g { }", 0),
    (b"gate g a { measure a -> a ; }", 0),
    (b"gate g a { h a [ 2 ] ; }", 0),
    (b"gate U a { }", 0),
    (b"opaque g ( x a ;", 0),
    (b"if ( c == 2 ) if ( c == 2 ) x q ;", 0),
    (b"if ( c == 2 ) barrier q ;", 0),
    (b"measure q ;", 0),
    (b"g ( a b ) q ;", 0),
    (b"g ( a , ) q ;", 0),
    (b"g ( ( a ) q ;", 0),
    (b"g ( sin a ) q ;", 0),
];

#[test]
fn other_tokens_are_refused_where_the_statement_begins(rt: HostRuntime) -> Result<(), Fail> {
    for (text, at) in &REFUSED {
        let fault = fault_of_text(rt.alloc(), text)?;
        assert_eq!(rt; fault, Some(ParseError::Syntax { at: *at }));
    }
    Ok(())
}

// An application whose one angle has so many words before it, and so many after it.
type Repeated = (usize, &'static [u8], &'static [u8]);

// Adds the tokens of a text, so many times.
fn add_tokens<'a>(
    tokens: &mut Vec<Token<'a>>,
    alloc: Global,
    count: usize,
    text: &'a [u8],
) -> Result<(), Fail> {
    let more = tokens_of(alloc, text)?;
    for _ in 0..count {
        tokens.extend_from_slice(&more)?;
    }
    Ok(())
}

fn add_repeated(
    tokens: &mut Vec<Token<'static>>,
    alloc: Global,
    repeated: Repeated,
) -> Result<(), Fail> {
    add_tokens(tokens, alloc, 1, b"g (")?;
    add_tokens(tokens, alloc, repeated.0, repeated.1)?;
    add_tokens(tokens, alloc, 1, b"a")?;
    add_tokens(tokens, alloc, repeated.0, repeated.2)?;
    add_tokens(tokens, alloc, 1, b") q ;")
}

// What is wrong with such applications, one after the other.
fn fault_of(alloc: Global, all: &[Repeated]) -> Result<Option<ParseError>, Fail> {
    let mut tokens = Vec::new(alloc);
    for repeated in all {
        add_repeated(&mut tokens, alloc, *repeated)?;
    }
    Ok(fault_in(alloc, &tokens))
}

// Applications of long expressions.
const LONG: [Repeated; 4] = [
    (100_000, b"-", b""),
    (100_000, b"a ^", b""),
    (100_000, b"", b"+ a"),
    (100_000, b"a ^ a *", b"- a"),
];

#[test]
fn long_expressions_are_read(rt: HostRuntime) -> Result<(), Fail> {
    for repeated in &LONG {
        let fault = fault_of(rt.alloc(), &[*repeated])?;
        assert_eq!(rt; fault, None);
    }
    Ok(())
}

const MOST: Repeated = (255, b"(", b")");

const OVER: Repeated = (256, b"(", b")");

const OPEN: Repeated = (255, b"(", b"");

const LAST: Repeated = (255, b"(", b"      (");

// Applications with many parentheses, and what is wrong with them.
const DEEP: [(&[Repeated], Option<ParseError>); 4] = [
    (&[MOST], None),
    (&[OVER], Some(ParseError::TooDeep { at: 0 })),
    (&[OPEN, OPEN], Some(ParseError::Syntax { at: 0 })),
    (&[MOST, LAST], Some(ParseError::TooDeep { at: 6 })),
];

#[test]
fn more_than_256_open_parentheses_are_too_deep(rt: HostRuntime) -> Result<(), Fail> {
    for (all, wanted) in &DEEP {
        let fault = fault_of(rt.alloc(), all)?;
        assert_eq!(rt; fault, *wanted);
    }
    Ok(())
}

// What a text is: so many statements, or no tokens, or no statements.
#[derive(Clone, Copy, PartialEq, Eq)]
enum Told {
    Statements(usize),
    BadByte(usize),
    Syntax(usize),
    Other,
}

// What tokens are.
fn reading_of_tokens(alloc: Global, tokens: &[Token<'_>]) -> Told {
    match program_of(alloc, tokens) {
        Ok(program) => Told::Statements(program.elements.len()),
        Err(ParseError::Syntax { at }) => Told::Syntax(at),
        Err(_) => Told::Other,
    }
}

// What a text is.
fn reading_of(alloc: Global, text: &[u8]) -> Told {
    match lex(alloc, text) {
        Ok(tokens) => reading_of_tokens(alloc, &tokens),
        Err(LexError::BadByte { at }) => Told::BadByte(at),
        Err(LexError::NoMemory) => Told::Other,
    }
}

const PROGRAM: &[u8] = b"OPENQASM 2.0;\ninclude \"qelib1.inc\";\nqreg q[1];\nt q[0];\nt q[0];\n";

// The first and the last length of the prefixes of one kind.
const PREFIXES: [(usize, usize, Told); 14] = [
    (0, 0, Told::Statements(0)),
    (1, 7, Told::BadByte(0)),
    (8, 12, Told::Syntax(0)),
    (13, 14, Told::Statements(1)),
    (15, 22, Told::Syntax(14)),
    (23, 33, Told::BadByte(22)),
    (34, 34, Told::Syntax(14)),
    (35, 36, Told::Statements(2)),
    (37, 45, Told::Syntax(36)),
    (46, 47, Told::Statements(3)),
    (48, 53, Told::Syntax(47)),
    (54, 55, Told::Statements(4)),
    (56, 61, Told::Syntax(55)),
    (62, 63, Told::Statements(5)),
];

// Whether all prefixes of these lengths are told so.
fn are_told(alloc: Global, first: usize, last: usize, expected: Told) -> bool {
    for length in first..=last {
        match PROGRAM.get(..length) {
            Some(prefix) if reading_of(alloc, prefix) == expected => {}
            _ => return false,
        }
    }
    true
}

#[test]
fn each_prefix_of_a_text_is_told(rt: HostRuntime) {
    for (first, last, expected) in &PREFIXES {
        let is_so = are_told(rt.alloc(), *first, *last, *expected);
        assert!(rt; is_so, "from {first} to {last} bytes");
    }
    assert!(rt; PROGRAM.len() == 63);
}
