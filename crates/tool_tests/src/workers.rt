//! Tests of `worker_core`. A race with memory is vouched for, and its workers run on threads of their own. The lock is
//! free while a gate waits, and each line passes the gate once. The modules in reading order: `gates`, which hold lines
//! back or don't; `lines`, what a race is given; `races`, with single calls and refused races; `orders`, races with
//! consoles in orders that a gate fixes; `shared`, refused memory, and threads outside a race.
mod gates;
mod lines;
mod orders;
mod races;
mod shared;
