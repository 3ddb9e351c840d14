//! Tests of the board of a picture's packets, and of pictures that threads receive.
#![tactic(auto)]

#[cfg(test)]
mod boards;
#[cfg(test)]
mod captures;
#[cfg(test)]
mod drawn;
#[cfg(test)]
mod gates;
#[cfg(test)]
mod received;
