// The promise of the server, over every run and every resource. Nothing is served here yet.
#![tactic(auto)]

ghost use Rattle.server.specs.Requests.{coap};
ghost use Rattle.server.specs.Promises.{EachChangeOnce};

use register::resource::Resource;

// A server over this stack, or over any other of its meaning, makes each change once and hides no answer's age.
pub fn each_change_once<R: Resource>(stack: &R)
    ensures { EachChangeOnce coap R.Resource.meaning }
{}
