//! The law of the least fault. The call does nothing.
ghost use Rattle.std.specs.Prelude.{◌≡◌, List, None, Some};
ghost use Rattle.expression_types.specs.declared.fault.Fault as fault;
ghost use Rattle.expression_types.specs.Faults.{least_of};
ghost use Rattle.expression_types.specs.Least.{IsLeast};

/// The law that of several faults the least is reported.
pub fn least_fault_is_told()
    ensures { (faults : List fault.Fault) (f : fault.Fault) → least_of None faults ≡ Some f → IsLeast f faults }
{}
