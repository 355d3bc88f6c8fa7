// The worked examples of the rules, proved about the definitions by which sessions are judged.
#![tactic(auto)]

ghost use Rattle.examples.specs.Table.{Examples};

pub fn worked_examples()
    ensures { Examples }
{}
