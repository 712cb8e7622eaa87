//! Tests of `object_coding`, whose calls answer what a slow program answers, which goes word by word and bit by bit.
mod faults;
mod hosts;
mod random;
mod slow;
