//! The lines of a diagram file, behind the first one.

ghost use Rattle.diagram_text.specs.Internal.DiagramFormat.{diagram_files};

use crate::line::parse;
use crate::reader::{Reader, taken};
use std::alloc::{AllocError, Global};
use zx_diagram::Diagram;
use zx_text::{LineReader, Version};

impl LineReader for Reader {
    ghost format = { diagram_files };

    ghost state = { λ reader. reader };

    fn new(alloc: Global) -> Reader {
        Reader::Open(Diagram::new(alloc))
    }

    fn version_of(line: &[u8]) -> Option<Version> {
        if line == b"zxd 1".as_slice() {
            Some(Version::One)
        } else if line == b"zxd 2".as_slice() {
            Some(Version::Two)
        } else {
            None
        }
    }

    fn is_over(&self) -> bool {
        match self {
            Reader::Over(_) => true,
            Reader::Open(_) => false,
        }
    }

    fn taken(
        self,
        _alloc: Global,
        version: Version,
        line: &[u8],
    ) -> Result<Option<Reader>, AllocError> {
        match parse(line) {
            Some(line) => taken(version, self, &line),
            None => Ok(None),
        }
    }
}
