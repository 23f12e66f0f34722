// The definitions of the named rules counted out on small plans: a second pin, apart from the automata.
ghost use Rattle.rules.specs.Worked.{WorkedLinear};

pub fn worked_linear()
    ensures { WorkedLinear }
{}
