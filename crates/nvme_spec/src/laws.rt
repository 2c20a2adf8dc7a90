//! Laws that follow from the definitions. Each is the contract of an empty function.

mod admin;
mod attachments;
mod calls;
mod executions;
mod power;
mod queues;
mod registers;
mod reservations;
mod transfers;
