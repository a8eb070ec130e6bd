//! Tests of public functions, for properties that no contract states and no command shows: devices that fail at each of their calls, headers of
//! another program, and the words of faults; threads that wait for one another, with sessions, as checkers and as scripts; the arguments
//! of a log and a sweep; a volume that is cut at each of its bytes; a view that learns twice; and functions that no command calls.
#![tactic(auto)]

#[cfg(test)]
mod checkers;
#[cfg(test)]
mod commands;
#[cfg(test)]
mod cuts;
#[cfg(test)]
mod devices;
#[cfg(test)]
mod fixtures;
#[cfg(test)]
mod headers;
#[cfg(test)]
mod layers;
#[cfg(test)]
mod ledgers;
#[cfg(test)]
mod meeting;
#[cfg(test)]
mod migrations;
#[cfg(test)]
mod play;
#[cfg(test)]
mod texts;
#[cfg(test)]
mod threads;
#[cfg(test)]
mod views;
