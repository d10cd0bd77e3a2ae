//! From the tree of a file to its checked program.
ghost use Rattle.std.specs.Prelude.{IfOk, IfErr};
ghost use Rattle.gr_tree.specs.Files.{file_of};
ghost use Rattle.gr_program.specs.Views.{program_of};
ghost use Rattle.gr_typing.specs.FileChecks.{ProgramOf};
ghost use Rattle.gr_types.specs.Refusals.{HasNoProgram};
ghost use Rattle.gr_types.specs.Outlines.{program_read};
ghost use Rattle.gr_types.specs.Checking.{Settles};

use crate::bodies::bodies;
use crate::outlines::headings;
use crate::refusal::CheckError;
use gr_exprs::refusal::RefusalCode;
use gr_program::Program;
use gr_tree::File;
use std::alloc::Global;

#[tactic(auto, unfolding(crate::specs::Outlines::program_read))]
fn read(alloc: Global, file: &File) -> Result<Program, CheckError>
    ensures { Settles program_of result (program_read (file_of file.now)) }
{
    let no_main = CheckError::Refused {
        code: RefusalCode::NoMain,
        at: file.place.start,
    };
    if file.package.as_slice() != b"main".as_slice() {
        return Err(no_main);
    }
    let (functions, outlines) = headings(alloc, &file.funcs)?;
    let Some(main) = functions.number(b"main") else {
        return Err(no_main);
    };
    let functions = bodies(alloc, &functions, outlines)?;
    Ok(Program { functions, main })
}

/// The program of a file.
pub fn check(alloc: Global, file: File) -> Result<Program, CheckError>
    // The answer is the program of this file.
    ensures program { IfOk result (λ p. ProgramOf (file_of file) (program_of p)) }
    // A refusal means that the file has none. Out of memory says nothing.
    ensures none { IfErr result (λ e. HasNoProgram e (file_of file)) }
{
    read(alloc, &file)
}
