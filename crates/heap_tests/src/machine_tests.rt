//! Tests of the parts of a thread's work: events done by hand on the words of small heaps.

#[cfg(test)]
mod build_hand;
#[cfg(test)]
mod builds;
#[cfg(test)]
mod exchanges;
#[cfg(test)]
mod fields;
#[cfg(test)]
mod gate_hand;
#[cfg(test)]
mod gates;
#[cfg(test)]
mod grey_hand;
#[cfg(test)]
mod hand;
#[cfg(test)]
mod held;
#[cfg(test)]
mod rows;
#[cfg(test)]
mod scans;
#[cfg(test)]
mod shading;
#[cfg(test)]
mod small;
#[cfg(test)]
mod sweep_hand;
#[cfg(test)]
mod sweeps;
