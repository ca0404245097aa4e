//! What a refused text declares. Canonical texts, and where the faults of lines are, are tried on the built
//! program, by dev/test_whole.py.

mod named_parts;
