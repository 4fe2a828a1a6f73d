//! What holds after every list of accepted calls of a script, each law as the contract of a
//! function that does nothing.
ghost use Rattle.wh_match.specs.Calls.{MarksReduce, CallsKeepMarks, CallsReduce};

/// If commands are marked late as their context has it, then what the marks send is what is to be
/// sent in that context, for every context and every list of commands.
pub fn reduced_is_said()
    ensures { MarksReduce }
{}

/// After every list of accepted commands and asks the late marks of a script are those of its
/// context, if they were before. So what is sent of a script that began with nothing is what is to
/// be sent of its commands in its context.
pub fn marks_follow()
    ensures marks { CallsKeepMarks }
    ensures sent { CallsReduce }
{}
