//! A program with its code.

ghost use Rattle.std.specs.Prelude.{◌≡◌, IfOk};

use gr_base::NoMemory;
use gr_code::code::Code;
use gr_lower::lower;
use gr_program::program::Program;
use std::alloc::Global;
use std::sync::Arc;

/// A program with its code.
pub struct Listing {
    pub program: Arc<Program>,
    pub code: Arc<Code>,
}

// Written out, so that crates above call it and need not prove it again.
impl Drop for Listing {
    fn drop(self) {
        let Listing {
            program: _,
            code: _,
        } = self;
    }
}

impl Listing {
    ghost use Rattle.gr_record.specs.Listings.{IsCoded};

    /// The program with its code. The one error is out of memory.
    pub fn new(alloc: Global, program: Arc<Program>) -> Result<Listing, NoMemory>
        ensures program { IfOk result (λ listing. listing.program ≡ program) }
        ensures code { IfOk result IsCoded }
    {
        let code = lower(alloc, &program)?;
        let code = Arc::new(alloc, code)?;
        Ok(Listing { program, code })
    }
}
