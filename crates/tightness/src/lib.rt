// No code: the wrong programs of paper 01, "How tight a promise is". `specs/Wrong` says what each of them is, for any program at all, `specs/Tight`
// is the one statement that none of them keeps its promise, and `proofs/Refuted` shows it. `proofs/Numbers`, `Lines`, `Texts`, `Single`
// and `Whole` refute wrong answers of single functions, `proofs/Rows` those of the row reader, `proofs/Entry`, `Lost` and `Writing` those of `read`,
// `write`, `export`, `pack` and `unpack`, `proofs/ExportChannels` those of the channel for bus 0.
#![tactic(auto)]
