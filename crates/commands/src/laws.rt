// What is proved of all plans that lines write, as the promise of a function that does nothing.
ghost use Rattle.commands.specs.Laws.{InOrder};

// No plan that a line writes is refused for the order of its nodes.
pub fn nodes_in_order()
    ensures { InOrder }
{}
