//! What a C program calls to time the link: covering, sending, receiving, and the two mark stores. Nothing is allocated.
#![tactic(auto)]

mod answer;
mod covering;
mod links;
mod stores;
#[cfg(test)]
mod tests;
