//! Tests of the top call where all that it is lent is hostile: streams that fail at any call, sinks
//! without room, inputs with any byte wrong or of any length, numbers at the ends of their ranges,
//! and schedules that hold a thread anywhere.

#[cfg(test)]
mod calling;
#[cfg(test)]
mod changed;
#[cfg(test)]
mod failing;
#[cfg(test)]
mod held;
mod held_system;
#[cfg(test)]
mod plain_reader;
