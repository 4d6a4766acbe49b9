// Tests of a node.

mod acting;
mod again;
mod alike;
mod building;
mod call;
mod expected;
mod forging;
mod frame;
mod noting;
mod random;
mod same;
mod site;
mod small;
mod stream;
mod worked;
mod world;
