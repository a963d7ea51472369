// Runs the worked examples of document 01 and published vectors, and prints what it finds.
#![tactic(auto)]

mod exchange;
mod print;
mod wire;

fn main(rt: HostRuntime) {
    let to = rt.stdout();
    wire::show(to);
    exchange::show(to);
}
