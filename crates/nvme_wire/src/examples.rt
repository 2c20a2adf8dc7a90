//! Worked examples of the definitions. Each is the contract of an empty function, proved by computing.

mod statuses;
