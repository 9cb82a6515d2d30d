//! Tests of what is on the heap as a program of its own: whole calls, and drawn scripts.

#[cfg(test)]
mod calling;
#[cfg(test)]
mod deeds;
#[cfg(test)]
mod handle_calls;
#[cfg(test)]
mod handle_deeds;
#[cfg(test)]
mod plant;
#[cfg(test)]
mod replaying;
mod shown_job;
#[cfg(test)]
mod tag_calls;
#[cfg(test)]
mod tag_deeds;
