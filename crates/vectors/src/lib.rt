// Tests alone: published values, and the edges of each rule worked out by hand. What the rules say
// of every input is proved in the crates below; here their answers are seen.
#![tactic(auto)]

#[cfg(test)]
mod byte_reels;
#[cfg(test)]
mod elements;
#[cfg(test)]
mod g711;
#[cfg(test)]
mod layers;
#[cfg(test)]
mod numbers;
#[cfg(test)]
mod profiles;
#[cfg(test)]
mod ramp;
#[cfg(test)]
mod sessions;
#[cfg(test)]
mod written;
