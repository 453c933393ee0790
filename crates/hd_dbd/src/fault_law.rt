ghost use Rattle.hd_dbd.specs.DatabaseFaults.{DatabasesHaveNoFault};
ghost use Rattle.hd_dbd.specs.ProgramFaults.{ProgramsHaveNoFault};

/// A database is well formed just where no fault stands.
pub fn law_databases_have_no_fault()
    ensures { DatabasesHaveNoFault }
{}

/// A program is well formed just where no fault stands.
pub fn law_programs_have_no_fault()
    ensures { ProgramsHaveNoFault }
{}
