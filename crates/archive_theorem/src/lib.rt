//! The main theorem: a server, its clients and the network between them, over every schedule of begins, deliveries,
//! time-outs, strangers' datagrams and restarts. docs/HEADLINE.md states the promise and why it holds.
//!
//! Read `specs/World.antt` of `archive_model` first: what a world is, and what each event does to it. `specs/Headline.antt`
//! has the premise on ports and what holds for every run. `Effects` has the order in which operations take effect,
//! `Durable` what is never lost, `Errors` what it means that a client failed, `Freeing`, `Patience` and `Progress` why
//! nothing gets stuck, `Traces` runs as their ends report them, `Reuse` the tests for the reuse of a port, and `Samples`
//! and `Error_Samples` some runs. There is nothing to call: each function is a law.
#![tactic(auto)]

mod laws;

pub use laws::{
    effects_law, error_law, error_runs, folder_law, network_law, own_ports, places_law,
    restart_law, sample_runs, trace_law,
};
