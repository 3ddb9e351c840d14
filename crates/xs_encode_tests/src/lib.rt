//! Tests of the encoder on several threads: pictures that any number of workers encode, whatever their gate answers.
#![tactic(auto)]

#[cfg(test)]
mod alike;
#[cfg(test)]
mod cases;
#[cfg(test)]
mod gates;
#[cfg(test)]
mod meeting;
