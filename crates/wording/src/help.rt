// How the program is used.
pub const HELP: &str = "casebook: calculates modulo f as if in a field

  casebook euclid DOMAIN WORD MODULUS    zero, inverse W or factor W
  casebook check HEX                     reads and checks a byte program, and lists it
  casebook batch                         commands from standard input, one to a line
  casebook help                          this text

DOMAIN is 1 for whole numbers, 2 for bit polynomials (bit i of a word is the
coefficient of x^i), or 3/P for byte polynomials over GF(P), P a prime from 3 to
251 (byte i, modulo P, is the coefficient of x^i). WORD and MODULUS are decimal
numbers below 2^64.

  casebook euclid 1 2 7                  inverse 4, since 2 times 4 is 1 modulo 7
  casebook euclid 1 2 6                  factor 2, since 2 divides 2 and 6
  casebook euclid 1 14 7                 zero, since 7 divides 14
  casebook euclid 2 2 7                  inverse 3: x times x + 1 is 1 modulo x^2 + x + 1
  casebook euclid 3/5 513 65537          factor 259: x + 3 divides 2x + 1 and x^2 + 1

A refusal is 'refused NUMBER place PLACE: REASON', and a line that is no command
'error: WHAT IS WRONG'; as a single command they go to standard error, with status 1.";
