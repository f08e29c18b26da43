#![tactic(auto)]

// Theorems about a session: what feeding leaves is a session; however a tape is cut, it is one run over its bytes. No code.
