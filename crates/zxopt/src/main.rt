//! The program `zxopt`: the standard streams, the words, and the exit status.
#![tactic(auto)]

mod ending;

ghost use Rattle.std.specs.Prelude.{◌≡◌, map, string_bytes, IfOk};

use ending::{NoRun, exit_status};
use std::alloc::{AllocError, Global};
use std::env;
use std::process::ExitCode;
use zx_io::{ReadAdapter, WriteAdapter};
use zx_run::{Status, answer, report};

fn main(rt: HostRuntime) -> ExitCode {
    ExitCode::from(exit_status(run_on_streams(&rt)))
}

// Runs the words after the program's name over the standard streams.
fn run_on_streams(rt: &HostRuntime) -> Result<Status, NoRun> {
    let words: Vec<String> = env::args(rt)?.skip(1).collect(rt.alloc())?;
    let texts = texts_of(rt.alloc(), &words)?;
    let mut source = ReadAdapter::new(rt.stdin());
    let mut out = WriteAdapter::new(rt.stdout());
    let mut err = WriteAdapter::new(rt.stderr());
    let status = answer(rt.alloc(), &texts, &mut source, &mut out);
    Ok(report(status, &mut err))
}

// The texts of the words, each whole.
fn texts_of(alloc: Global, words: &[String]) -> Result<Vec<&str>, AllocError>
    ensures { IfOk result (λ texts. map (λ text. text.now) texts.items
        ≡ map string_bytes words.now) }
{
    let mut texts = Vec::with_capacity(alloc, words.len())?;
    for word in words {
        texts.push(word.as_str())?;
    }
    Ok(texts)
}
