//! Calls that are refused memory. `gate/refusals/refused.py` runs each of these tests once for each request for memory that comes between the two
//! lines printed around its call, and has that request refused. With all at hand they pass as any test does.

mod generated;
mod lists;
mod lives;
mod named;
mod sets;
mod tables;
mod told;
mod unasked;
