//! Tests of `coded_marking`, whose marks are those of a slow program that goes over all objects again and again.
mod hosts;
mod random;
mod slow;
mod unsound;
