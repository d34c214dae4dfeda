// No code: how many roots a polynomial over the field has, and so how many H give two labels and ciphertexts one hash.
//
// The hash is a polynomial in H by Horner's rule. Of two lists of blocks the shorter is filled up with blocks of zeros in front, which
// change no hash; the length block at the end still tells the two apart.

#![tactic(auto)]
